// The calls for C: a slice is a pointer and a length, the answer is the specification's number, and the length goes through `size`.
#![tactic(auto)]

ghost use Rattle.answers.specs.Outcome.{Reported};
ghost use Rattle.answers.specs.Both.{ReportedBoth};
ghost use Rattle.filtering.specs.Bindings.{bindings_outcome};
ghost use Rattle.filtering.specs.Filters.{filters_outcome};
ghost use Rattle.filtering.specs.NotPlaced.{filters_not_placed};
ghost use Rattle.surveying.specs.Scope.{scope_outcome};
ghost use Rattle.renaming.specs.Rename.{rename_outcome};
ghost use Rattle.merging.specs.Merge.{merge_patterns_outcome, merge_queries_outcome};
ghost use Rattle.merging.specs.Negate.{negate_outcome};
ghost use Rattle.merging.specs.Push.{push_constants_outcome};
ghost use Rattle.merging.specs.Without.{without_queries_outcome};
ghost use Rattle.converting.specs.Namespaces.{namespaces_outcome};

use answers::{answer_of, many_of, number, size_of};
use binding::bindings::bindings;
use expressing::filters;
use joining::patterns::merge_patterns;
use joining::push::push_constants;
use joining::queries::merge_queries;
use joining::without::without;
use negating::negate;
use renaming::rename::rename;
use respelling::namespaces;
use surveying::scope::scope;

// scope: tree to the lines `in` and `hid`.
#[unsafe(no_mangle)]
pub extern "C" fn gandeuch_scope(tree: &[u8], out: &mut [u8], size: &mut usize) -> u8
    ensures { Reported (scope_outcome tree.now) out.old out.new result size.new }
{
    let a = scope(tree, out);
    *size = size_of(a);
    number(a)
}

// rename: tree and mapping to tree.
#[unsafe(no_mangle)]
pub extern "C" fn gandeuch_rename(
    tree: &[u8],
    mapping: &[u8],
    out: &mut [u8],
    size: &mut usize,
) -> u8
    ensures { Reported (rename_outcome tree.now mapping.now) out.old out.new result size.new }
{
    let a = rename(tree, mapping, out);
    *size = size_of(a);
    number(a)
}

// negate: query to query.
#[unsafe(no_mangle)]
pub extern "C" fn gandeuch_negate(query: &[u8], out: &mut [u8], size: &mut usize) -> u8
    ensures { Reported (negate_outcome query.now) out.old out.new result size.new }
{
    let a = negate(query, out);
    *size = size_of(a);
    number(a)
}

// merge patterns: two trees, join list, left and right constants to tree.
#[unsafe(no_mangle)]
pub extern "C" fn gandeuch_merge_patterns(
    left: &[u8],
    right: &[u8],
    joins: &[u8],
    left_constants: &[u8],
    right_constants: &[u8],
    out: &mut [u8],
    size: &mut usize,
) -> u8
    ensures { Reported (merge_patterns_outcome left.now right.now joins.now left_constants.now right_constants.now) out.old out.new result size.new }
{
    let a = merge_patterns(left, right, joins, left_constants, right_constants, out);
    *size = size_of(a);
    number(a)
}

// merge queries: two queries, join list, left and right constants to query.
#[unsafe(no_mangle)]
pub extern "C" fn gandeuch_merge_queries(
    left: &[u8],
    right: &[u8],
    joins: &[u8],
    left_constants: &[u8],
    right_constants: &[u8],
    out: &mut [u8],
    size: &mut usize,
) -> u8
    ensures { Reported (merge_queries_outcome left.now right.now joins.now left_constants.now right_constants.now) out.old out.new result size.new }
{
    let a = merge_queries(left, right, joins, left_constants, right_constants, out);
    *size = size_of(a);
    number(a)
}

// without: two queries and a join list to query.
#[unsafe(no_mangle)]
pub extern "C" fn gandeuch_without(
    left: &[u8],
    right: &[u8],
    joins: &[u8],
    out: &mut [u8],
    size: &mut usize,
) -> u8
    ensures { Reported (without_queries_outcome left.now right.now joins.now) out.old out.new result size.new }
{
    let a = without(left, right, joins, out);
    *size = size_of(a);
    number(a)
}

// push constants: query and constants to query.
#[unsafe(no_mangle)]
pub extern "C" fn gandeuch_push_constants(
    query: &[u8],
    constants: &[u8],
    out: &mut [u8],
    size: &mut usize,
) -> u8
    ensures { Reported (push_constants_outcome query.now constants.now) out.old out.new result size.new }
{
    let a = push_constants(query, constants, out);
    *size = size_of(a);
    number(a)
}

// bindings: tree and binding sets to tree.
#[unsafe(no_mangle)]
pub extern "C" fn gandeuch_bindings(
    tree: &[u8],
    sets: &[u8],
    out: &mut [u8],
    size: &mut usize,
) -> u8
    ensures { Reported (bindings_outcome tree.now sets.now) out.old out.new result size.new }
{
    let a = bindings(tree, sets, out);
    *size = size_of(a);
    number(a)
}

// filters: tree and filters to tree, and the numbers of the filters that were not placed.
#[unsafe(no_mangle)]
pub extern "C" fn gandeuch_filters(
    tree: &[u8],
    filters: &[u8],
    out: &mut [u8],
    size: &mut usize,
    list: &mut [u16],
    many: &mut usize,
) -> u8
    ensures { ReportedBoth (filters_outcome tree.now filters.now) (filters_not_placed tree.now filters.now) out.old out.new list.old list.new result size.new many.new }
{
    let listed = filters::filters(tree, filters, out, list);
    let a = answer_of(listed);
    *size = size_of(a);
    *many = many_of(listed);
    number(a)
}

// namespaces: tree and table to tree.
#[unsafe(no_mangle)]
pub extern "C" fn gandeuch_namespaces(
    tree: &[u8],
    table: &[u8],
    out: &mut [u8],
    size: &mut usize,
) -> u8
    ensures { Reported (namespaces_outcome tree.now table.now) out.old out.new result size.new }
{
    let a = namespaces(tree, table, out);
    *size = size_of(a);
    number(a)
}
