// The values of kind 2.
ghost use Rattle.std.specs.Prelude.{◌<◌};

// A node from 1 to 65,535 with its deleted mark. The mark says something of every node, so it is no Option.
#[derive(Clone, Copy, Debug, PartialEq, Eq)]
pub struct Node {
    pub number: u16,
    pub deleted: bool,
    ghost named: { 0 < number },
    ghost fits: { number < 65536 },
}

// A link: to nothing, or to a node. Its cases have the names that the rules give them, and it is a value kind of its
// own, so it is no Option of a node.
#[derive(Clone, Copy, Debug, PartialEq, Eq)]
pub enum Link {
    Nothing,
    To(Node),
}
