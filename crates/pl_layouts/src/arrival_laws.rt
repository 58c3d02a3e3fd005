ghost use Rattle.std.specs.Prelude.{◌≡◌, ℕ, ◌≤◌, List, length, slice_index, option_map, unwrap_or, Option, None};
ghost use Rattle.pl_frame.specs.declared.address.Mac.{Mac};
ghost use Rattle.pl_frame.specs.Ethernet.{destination_of, source_of};
ghost use Rattle.pl_layouts.specs.Frames.{HasSixBytes, IsUnalteredByte, arriving, packet_in, with_addresses};

/// A frame arrives as long as it began and with these addresses, in the frame and in an ARP packet
/// that can be read; every other byte is as it was.
pub fn a_frame_arrives_with_other_addresses_alone()
    ensures length { (frame : List ℕ) (src dst : Option Mac) → 14 ≤ length frame →
        HasSixBytes src → HasSixBytes dst →
        length (arriving frame src dst) ≡ length frame }
    ensures destination { (frame : List ℕ) (src dst : Option Mac) → 14 ≤ length frame →
        HasSixBytes src → HasSixBytes dst →
        destination_of (arriving frame src dst) ≡ unwrap_or dst (destination_of frame) }
    ensures source { (frame : List ℕ) (src dst : Option Mac) → 14 ≤ length frame →
        HasSixBytes src → HasSixBytes dst →
        source_of (arriving frame src dst) ≡ unwrap_or src (source_of frame) }
    ensures packet { (frame : List ℕ) (src dst : Option Mac) → 14 ≤ length frame →
        HasSixBytes src → HasSixBytes dst →
        packet_in (arriving frame src dst) ≡ option_map (with_addresses src dst) (packet_in frame) }
    ensures others { (frame : List ℕ) (src dst : Option Mac) (i : ℕ) → 14 ≤ length frame →
        HasSixBytes src → HasSixBytes dst →
        IsUnalteredByte frame i → slice_index (arriving frame src dst) i ≡ slice_index frame i }
{}

/// The source may be rewritten where a frame comes in, and the destination where it leaves.
pub fn addresses_are_rewritten_one_after_the_other()
    ensures { (frame : List ℕ) (src dst : Option Mac) → 14 ≤ length frame →
        HasSixBytes src → HasSixBytes dst →
        arriving (arriving frame src None) None dst ≡ arriving frame src dst }
{}
