use pl_capture::CaptureError;
use pl_pcapng::BlockError;

/// Why a capture is refused, by the grammar of its kind of file.
#[derive(Clone, Copy, Debug, PartialEq, Eq)]
pub enum CaptureFault {
    /// A libpcap file is refused.
    OfRecords(CaptureError),
    /// A pcapng file is refused.
    OfSections(BlockError),
}
