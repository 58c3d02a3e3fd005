use pl_frame::Mac;

/// To whom an address was granted: a host, by its own address, at a port.
#[derive(Clone, Copy, Debug, PartialEq, Eq)]
pub struct Grantee {
    pub amac: Mac,
    pub port: u8,
}
