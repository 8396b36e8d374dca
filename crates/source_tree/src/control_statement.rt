//! STOP RUN, CONTINUE and EXIT.

#[derive(Clone, Copy, PartialEq, Eq)]
pub enum ControlStatement {
    StopRun,
    /// Nothing.
    Continue,
    /// Nothing: the end of a procedure.
    Exit,
}
