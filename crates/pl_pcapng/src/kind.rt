ghost use Rattle.std.specs.Prelude.{◌≡◌};
ghost use Rattle.pl_pcapng.specs.Kind.{kind_of, least_length, is_length};

/// The type of a section header, which is the same number in both byte orders.
pub const SECTION_HEADER: u32 = 0x0a0d_0d0a;

/// The blocks that are read, by the names that the format gives them, and all others.
#[derive(Clone, Copy, Debug, PartialEq, Eq)]
pub enum BlockKind {
    SectionHeader,
    InterfaceDescription,
    EnhancedPacket,
    SimplePacket,
    Other,
}

impl BlockKind {
    pub fn of(block_type: u32) -> BlockKind
        ensures { result ≡ kind_of block_type }
    {
        match block_type {
            SECTION_HEADER => BlockKind::SectionHeader,
            1 => BlockKind::InterfaceDescription,
            6 => BlockKind::EnhancedPacket,
            3 => BlockKind::SimplePacket,
            _ => BlockKind::Other,
        }
    }

    fn least_length(self) -> u32
        ensures { result ≡ least_length self }
    {
        match self {
            BlockKind::SectionHeader => 28,
            BlockKind::InterfaceDescription => 20,
            BlockKind::EnhancedPacket => 32,
            BlockKind::SimplePacket => 16,
            BlockKind::Other => 12,
        }
    }

    /// Whether a block of this kind may have this total length.
    pub fn may_have(self, total: u32) -> bool
        ensures { result ≡ is_length self total }
    {
        if total < self.least_length() {
            return false;
        }
        total % 4 == 0
    }
}
