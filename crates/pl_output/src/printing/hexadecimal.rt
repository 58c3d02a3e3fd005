ghost use Rattle.std.specs.Prelude.{◌≡◌, ◌≤◌, [], ◌∷◌, length, OnOk, OnErr};
ghost use Rattle.std.specs.List.{flat_map};
ghost use Rattle.hex.specs.Hex.{encode_lower};
ghost use Rattle.pl_shelf.specs.Capacity.{IsFull};
ghost use Rattle.pl_shelf.specs.Faults.{CountsWrites};
ghost use Rattle.pl_frame.specs.Address.{hex_pair, mac_text};
ghost use Rattle.pl_output.specs.Printed.{BreaksOff, IsPrinted};

use crate::printing::Piece;
use pl_frame::Mac;
use pl_shelf::{SaveError, Shelf};

/// How many bytes are turned into digits at a time.
const CHUNK_LEN: usize = 64;

const DIGITS: [u8; 16] = *b"0123456789abcdef";

impl Piece {
    /// Prints two lower-case hexadecimal digits for each byte.
    pub fn print_hexadecimal<S: Shelf>(
        &mut self,
        shelf: &mut S,
        name: &str,
        bytes: &[u8],
    ) -> Result<(), SaveError>
        ensures ok { OnOk result (IsPrinted (S.moment shelf.old).held (S.moment shelf.new).held name.now
            self.old self.new (encode_lower bytes.now)) }
        ensures err { OnErr result (BreaksOff (S.moment shelf.old).held (S.moment shelf.new).held name.now
            self.old (encode_lower bytes.now)) }
        ensures faults { CountsWrites result (S.moment shelf.old) (S.moment shelf.new) }
        ensures capacity { S.capacity shelf.new ≡ S.capacity shelf.old }
        ensures full { OnErr result (IsFull (S.capacity shelf.new name.now) ((S.moment shelf.new).held name.now)) }
    {
        let mut rest = bytes;
        while !rest.is_empty() {
            let (chunk, behind) = rest.split_at(rest.len().min(CHUNK_LEN));
            self.print_chunk(shelf, name, chunk)?;
            rest = behind;
        }
        Ok(())
    }

    fn print_chunk<S: Shelf>(
        &mut self,
        shelf: &mut S,
        name: &str,
        chunk: &[u8],
    ) -> Result<(), SaveError>
        requires { length chunk.now ≤ 64 }
        ensures ok { OnOk result (IsPrinted (S.moment shelf.old).held (S.moment shelf.new).held name.now
            self.old self.new (encode_lower chunk.now)) }
        ensures err { OnErr result (BreaksOff (S.moment shelf.old).held (S.moment shelf.new).held name.now
            self.old (encode_lower chunk.now)) }
        ensures faults { CountsWrites result (S.moment shelf.old) (S.moment shelf.new) }
        ensures capacity { S.capacity shelf.new ≡ S.capacity shelf.old }
        ensures full { OnErr result (IsFull (S.capacity shelf.new name.now) ((S.moment shelf.new).held name.now)) }
    {
        let mut pairs = [[0; 2]; CHUNK_LEN];
        let pairs = &mut pairs[..chunk.len()];
        put_pairs(pairs, chunk);
        self.print(shelf, name, pairs.as_flattened())
    }

    /// Prints six two-digit lower-case hexadecimal numbers joined by colons.
    pub fn print_address<S: Shelf>(
        &mut self,
        shelf: &mut S,
        name: &str,
        mac: Mac,
    ) -> Result<(), SaveError>
        ensures ok { OnOk result (IsPrinted (S.moment shelf.old).held (S.moment shelf.new).held name.now
            self.old self.new (mac_text mac)) }
        ensures err { OnErr result (BreaksOff (S.moment shelf.old).held (S.moment shelf.new).held name.now
            self.old (mac_text mac)) }
        ensures faults { CountsWrites result (S.moment shelf.old) (S.moment shelf.new) }
        ensures capacity { S.capacity shelf.new ≡ S.capacity shelf.old }
        ensures full { OnErr result (IsFull (S.capacity shelf.new name.now) ((S.moment shelf.new).held name.now)) }
    {
        self.print(shelf, name, &address_text(mac))
    }
}

// The text of an address.
fn address_text(mac: Mac) -> [u8; 17]
    ensures { result ≡ mac_text mac }
{
    let [a, b, c, d, e, f] = mac.0;
    let (a, b, c) = (digits(a), digits(b), digits(c));
    let (d, e, f) = (digits(d), digits(e), digits(f));
    let colon = b':';
    [
        a[0], a[1], colon, b[0], b[1], colon, c[0], c[1], colon, d[0], d[1], colon, e[0], e[1],
        colon, f[0], f[1],
    ]
}

// Puts in the two digits of each byte.
fn put_pairs(pairs: &mut [[u8; 2]], bytes: &[u8])
    requires { length pairs.old ≡ length bytes.now }
    ensures { flat_map (λ pair. pair) pairs.new ≡ encode_lower bytes.now }
{
    for i in 0..bytes.len() {
        pairs[i] = digits(bytes[i]);
    }
}

// The two digits of a byte.
fn digits(byte: u8) -> [u8; 2]
    ensures pair { result ≡ hex_pair byte }
    ensures encoded { result ≡ encode_lower (byte ∷ []) }
{
    [
        DIGITS[usize::from(byte / 16)],
        DIGITS[usize::from(byte % 16)],
    ]
}
