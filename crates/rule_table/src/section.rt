//! The sections of a packet.

ghost use Rattle.std.specs.Prelude.{◌≡◌};

/// A section of a packet: a child of the root, in no namespace (VOEvent 2.0, section 3).
#[derive(Clone, Copy, Debug, PartialEq, Eq)]
pub enum Section {
    /// Who is responsible for the packet.
    Who,
    /// What was measured.
    What,
    /// Where and when it was seen.
    WhereWhen,
    /// How it was observed.
    How,
    /// Why it was sent, and what it may mean.
    Why,
    /// Which earlier packets it speaks of.
    Citations,
}

impl Section {
    ghost use Rattle.rule_table.specs.Sections.{section_name};

    /// The local name of its element.
    pub fn name(self) -> &'static str
        ensures { result.now ≡ section_name self }
    {
        match self {
            Section::Who => "Who",
            Section::What => "What",
            Section::WhereWhen => "WhereWhen",
            Section::How => "How",
            Section::Why => "Why",
            Section::Citations => "Citations",
        }
    }
}
