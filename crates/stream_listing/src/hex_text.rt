//! Hex text that comes in pieces.

ghost use Rattle.std.specs.Prelude.{◌≡◌, ◌++◌, ◌∷◌, [], ℕ, List, take, IsTrue, ◌↔◌, IsErr, IfSome, IfNone, IfOk, IfErr, OnOk, OnErr};
ghost use Rattle.std.specs.Bool.{OnFalse};
ghost use Rattle.stream_listing.specs.HexText.{digits_of, AreDigitsUpTo, Breaks};
ghost use Rattle.std.specs.Option.{option_to_list};
ghost use Rattle.hex.specs.Hex.{decode_of};

use hex::FromHex;
use std::alloc::{AllocError, Allocator};
use std::marker::Model;

/// Why hex text can't be read on.
#[derive(Clone, Copy, PartialEq, Eq)]
pub enum HexFault {
    /// Two digits are no byte.
    Broken,
    /// There was no memory for the bytes.
    Memory,
}

impl From<AllocError> for HexFault {
    ghost use Rattle.stream_listing.specs.declared.hex_text.HexFault.TheVariants.{Memory};

    ghost from_gives = { λ _ e. e ≡ Memory };

    fn from(_: AllocError) -> HexFault {
        HexFault::Memory
    }
}

/// Hex text in pieces, seen as what it holds back: the first digit of a byte whose second is still
/// to come.
#[derive(Drop)]
pub struct HexText {
    high: Option<u8>,
}

impl Model for HexText {
    ghost use Rattle.std.specs.Prelude.{List, ℕ};
    ghost use Rattle.std.specs.Option.{option_to_list};

    ghost Value = { List ℕ };

    ghost view = { λ t. option_to_list t.high };
}

impl HexText {
    /// No text yet.
    pub fn new() -> HexText
        ensures { result ≡ [] }
    {
        HexText { high: None }
    }

    /// Whether each digit so far is part of a byte.
    pub fn is_whole(&self) -> bool
        ensures whole { IsTrue result ↔ (self.now ≡ []) }
        ensures broken { OnFalse result (IsErr (decode_of (take 2 self.now))) }
    {
        self.high.is_none()
    }

    /// Takes the next piece of the text, white space and all, and adds its bytes. Where two digits
    /// are no byte, those before them are added, and the text can't be read on. Want of memory
    /// changes nothing.
    pub fn read<A: Allocator>(
        &mut self,
        piece: &[u8],
        bytes: &mut Vec<u8, A>,
    ) -> Result<(), HexFault>
        ensures ok { OnOk result ((added : List ℕ)
            × AreDigitsUpTo (self.old ++ digits_of piece.now) added self.new
            × (bytes.new.items ≡ bytes.old.items ++ added)) }
        ensures broken { result ≡ Err HexFault.Broken → ((added : List ℕ)
            × Breaks (self.old ++ digits_of piece.now) added
            × (bytes.new.items ≡ bytes.old.items ++ added)) }
        ensures memory { result ≡ Err HexFault.Memory
            → (self.new ≡ self.old) × (bytes.new.items ≡ bytes.old.items) }
    {
        bytes.reserve(piece.len())?;
        for digit in piece {
            if !digit.is_ascii_whitespace() {
                if let Some(byte) = self.step(*digit)? {
                    bytes.push_reserved(byte);
                }
            }
        }
        Ok(())
    }

    // Takes one digit: the first of a byte waits for the second.
    fn step(&mut self, digit: u8) -> Result<Option<u8>, HexFault>
        ensures ok { IfOk result
            (λ byte. AreDigitsUpTo (self.old ++ digit ∷ []) (option_to_list byte) self.new) }
        ensures broken { OnErr result (Breaks (self.old ++ digit ∷ []) []) }
        ensures error { IfErr result (λ e. e ≡ HexFault.Broken) }
    {
        let Some(high) = self.high.take() else {
            self.high = Some(digit);
            return Ok(None);
        };
        let Some(byte) = byte_of(high, digit) else {
            return Err(HexFault::Broken);
        };
        Ok(Some(byte))
    }
}

// The byte that two digits spell, of either case.
fn byte_of(high: u8, low: u8) -> Option<u8>
    ensures some { IfSome result (λ byte. decode_of (high ∷ low ∷ []) ≡ Ok (byte ∷ [])) }
    ensures none { IfNone result (IsErr (decode_of (high ∷ low ∷ []))) }
{
    let byte = <[u8; 1]>::from_hex([high, low]).ok()?;
    Some(byte[0])
}
