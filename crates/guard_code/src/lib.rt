// Guards over the formula's bytes: the value of an expression, and whether it is rising or falling.
#![tactic(auto)]

mod commands;
pub mod guard;
pub mod trends;

// Which leaves are rising, or which are falling: the variables, the sums and the numbers of different values of the lists.
#[derive(Clone, Copy)]
pub struct Marks {
    pub variables: [bool; 8],
    pub sums: [bool; 4],
    pub differents: [bool; 4],
}
