//! Bytes by a table.
ghost use Rattle.std.specs.Prelude.{◌≡◌, ℕ, map};
ghost use Rattle.text_buffer.specs.Tables.{IsTableOf};

// Puts each byte as it stands in a table of all bytes.
#[inline(always)]
pub fn translate(table: &[u8; 256], bytes: &mut [u8])
    ensures { (f : ℕ → ℕ) → IsTableOf f table.now → bytes.new ≡ map f bytes.old }
{
    for byte in bytes.iter_mut() {
        *byte = table[*byte as usize];
    }
}
