// What the definitions and the code both name of a stack.
#![tactic(auto)]

// What the walk reads of a frame: its signer, and its marks, a bit for each target.
#[derive(Clone, Copy)]
pub struct Marked {
    pub signer: u64,
    pub enabled: u64,
    pub disabled: u64,
}

// What the walk finds: its verdict, and the frames looked at.
#[derive(Clone, Copy)]
pub struct Seen {
    pub granted: bool,
    pub looked: u64,
}
