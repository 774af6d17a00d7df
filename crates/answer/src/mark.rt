// What marks how far commits have come.

// The count of commits and the chain, by which boards are compared.
#[derive(Clone, Copy, PartialEq, Eq, Debug)]
pub struct Mark {
    pub count: u32,
    pub chain: [u8; 32],
}
