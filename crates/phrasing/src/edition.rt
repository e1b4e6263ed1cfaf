// The edition of SPARQL that a text is for.
ghost use Rattle.std.specs.Prelude.{◌≡◌};
ghost use Rattle.editions.specs.Token.{is11};
ghost use Rattle.phrasing.specs.bridge.Code.{edition_at, edition_told};

#[derive(Clone, Copy, Debug, PartialEq, Eq)]
pub enum Edition {
    Sparql10,
    Sparql11,
}

// The edition by whether it is 1.1.
impl From<bool> for Edition {
    ghost from_gives = { λ eleven edition. edition_at edition ≡ edition_told eleven };

    fn from(eleven: bool) -> Edition {
        if eleven {
            Edition::Sparql11
        } else {
            Edition::Sparql10
        }
    }
}

impl Edition {
    pub fn is_eleven(self) -> bool
        ensures { result ≡ is11 (edition_at self) }
    {
        match self {
            Edition::Sparql10 => false,
            Edition::Sparql11 => true,
        }
    }
}
