// The labels that stand before the strings that are sealed or chained.
// Requests, entries and chains have one each, so that no string of one kind can pass for a string of another.
#![tactic(auto)]

ghost use Rattle.std.specs.Prelude.{◌≡◌};
ghost use Rattle.label.specs.Labels.{Apart, label_bytes};

// The kind of string that follows.
#[derive(Clone, Copy)]
pub enum Label {
    Request,
    Entry,
    Chain,
}

impl Label {
    pub fn bytes(self) -> [u8; 4]
        ensures bytes { result ≡ label_bytes self }
        ensures apart { Apart self }
    {
        match self {
            Label::Request => *b"RQST",
            Label::Entry => *b"ENTR",
            Label::Chain => *b"CHN1",
        }
    }
}
