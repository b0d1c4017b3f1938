// The formula file: what decides about its next command, in the definition and in the code that reads it.
#![tactic(auto)]

ghost use Rattle.std.specs.Prelude.{◌≡◌};

// How many TIEDs, states, steps of the last state and clauses of the last step were read; whether the last state accepts or rejects, and so takes no
// step; whether the last step has its GUARD; the lists that it gathers into so far.
#[derive(Clone, Copy)]
pub struct Summary {
    pub tied: usize,
    pub states: usize,
    pub closed: bool,
    pub steps: usize,
    pub clauses: usize,
    pub guarded: bool,
    pub gathered: [bool; 4],
}

// The command that a byte names.
#[derive(Clone, Copy)]
pub enum Opcode {
    End,
    State,
    Step,
    Test,
    Testv,
    Bind,
    Guard,
    Tied,
    Gather,
    Other,
}

impl From<u8> for Opcode {
    ghost use Rattle.formula.specs.Read.{opcode};

    ghost from_gives = { λ b op. op ≡ opcode b };

    // The command that a byte names.
    #[tactic(auto, unfolding(crate::specs::Read::opcode))]
    fn from(b: u8) -> Opcode {
        match b {
            0x00 => Opcode::End,
            0x10 => Opcode::State,
            0x11 => Opcode::Step,
            0x12 => Opcode::Test,
            0x13 => Opcode::Testv,
            0x14 => Opcode::Bind,
            0x15 => Opcode::Guard,
            0x16 => Opcode::Tied,
            0x17 => Opcode::Gather,
            _ => Opcode::Other,
        }
    }
}
