// What the first bytes of an operation say, once they are found right.
use operation::OperationKind;

#[derive(Clone, Copy, Debug, PartialEq, Eq)]
pub struct OperationHead {
    pub kind: OperationKind,
    pub process: u8,
    pub count: u8,
}
