// What is wanted of a line: its sort, the levels that may still be opened, how many fields stand behind its slots, and the mark of its variables.
#[derive(Clone, Copy)]
pub struct Wanted {
    pub sort: u8,
    pub level: u8,
    pub width: usize,
    pub mark: u8,
}
