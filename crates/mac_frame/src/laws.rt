//! What follows from the definitions, for whoever stands on them.

ghost use Rattle.std.specs.Prelude.{◌≡◌, ◌<◌, ◌≤◌, ◌↔◌, ◌⊎◌, Bool, true, List, ℕ, length, slice_index, Ok, Some};
ghost use Rattle.mac_frame.specs.Address.{IsAddress, broadcast, address_text, address_of};
ghost use Rattle.mac_frame.specs.Header.{addressed_to};
ghost use Rattle.mac_frame.specs.Hearing.{Hears, is_heard};
ghost use Rattle.mac_frame.specs.Frame.{Frame, IsFrame, frame_of};

/// An address, six octets below 256, comes back from its text (*profile*).
pub fn address_comes_back()
    ensures { (address : List ℕ) → IsAddress address → address_of (address_text address) ≡ Some address }
{}

/// The test of what a network hears says so exactly if it hears it (IEEE Std 802.11-2016, 9.2.4.3).
pub fn hearing()
    ensures { (bss x : List ℕ) → (is_heard bss x ≡ true) ↔ Hears bss x }
{}

/// A string is at most one frame, which is the one that the tests in their order give (9.2.3, 9.3).
pub fn one_frame()
    ensures reading { (bss x : List ℕ) (f : Frame) → (frame_of bss x ≡ Ok f) ↔ IsFrame bss x f }
    ensures unique { (bss x : List ℕ) (f g : Frame) → IsFrame bss x f → IsFrame bss x g → f ≡ g }
{}

/// A frame for a network has an Address 1, which is the network's or the broadcast one (9.2.4.3).
pub fn frame_is_addressed()
    ensures long { (bss x : List ℕ) (f : Frame) → IsFrame bss x f → 10 ≤ length x }
    ensures receiver { (bss x : List ℕ) (f : Frame) → IsFrame bss x f
        → (addressed_to x ≡ bss) ⊎ (addressed_to x ≡ broadcast) }
{}

/// The body of a frame has octets, numbers below 256, if the string has (9.2.3).
pub fn body_has_octets()
    ensures management { (bss x : List ℕ) (subtype : ℕ) (from : List ℕ) (to_all : Bool) (body : List ℕ)
        → IsFrame bss x (Frame.Mgmt subtype from to_all body)
        → ((place : ℕ) → slice_index x place < 256) → (place : ℕ) → slice_index body place < 256 }
    ensures msdu { (bss x from : List ℕ) (doze : Bool) (to body : List ℕ)
        → IsFrame bss x (Frame.Msdu from doze to body)
        → ((place : ℕ) → slice_index x place < 256) → (place : ℕ) → slice_index body place < 256 }
{}
