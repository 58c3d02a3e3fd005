ghost use Rattle.std.specs.Prelude.{◌≡◌, ◌<◌, ◌++◌, ℕ, List, length, drop, slice_index, Ok};
ghost use Rattle.pl_frame.specs.Ethernet.{payload_of};
ghost use Rattle.pl_layouts.specs.declared.control.Control.{Control};
ghost use Rattle.pl_layouts.specs.Control.{control_bytes, control_frame, control_in};
ghost use Rattle.pl_ldp.specs.Writable.{IsWritableControl};

/// A message and its bytes determine each other: what is spelled is read, whatever follows it, and
/// what is read is spelled so.
pub fn spelling_is_exact()
    ensures read { (control : Control) (rest : List ℕ) → IsWritableControl control →
        control_in (control_bytes control ++ rest) ≡ Ok control }
    ensures carried { (control : Control) (rest : List ℕ) → IsWritableControl control →
        control_in (payload_of (control_frame control ++ rest)) ≡ Ok control }
    ensures spelled { (payload : List ℕ) (control : Control) → ((i : ℕ) → slice_index payload i < 256) →
        control_in payload ≡ Ok control →
        IsWritableControl control × (payload ≡ control_bytes control ++ drop (length (control_bytes control)) payload) }
{}
