use grammar::words::PortKind;

// The kinds of base events: those of the ports, and timeouts.
#[derive(Clone, Copy, Debug, PartialEq, Eq)]
pub enum BaseKind {
    Port(PortKind),
    Timeout,
}
