// A link of a chain: the number that it leads to, and the link behind it.
#[derive(Clone, Copy)]
pub struct Link {
    pub to: u32,
    pub next: u32,
}

// A chain: its first link and its last.
#[derive(Clone, Copy)]
pub struct Chain {
    pub first: u32,
    pub last: u32,
}
