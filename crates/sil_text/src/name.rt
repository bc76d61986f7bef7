//! Names of subsystems and types.

ghost use Rattle.std.specs.Prelude.{◌≡◌, IsTrue, ◌↔◌};
ghost use Rattle.sil_model.specs.LoopValue.{IsName};
ghost use Rattle.sil_text.specs.Name.{is_name_text};

/// At most this many bytes are in a name.
const MOST_BYTES: usize = 32;

/// Whether `s` can be a name: 1 to 32 bytes, each of them from the blank to the tilde of ASCII.
pub fn is_name(s: &str) -> bool
    ensures exactly { IsTrue result ↔ IsName s.now }
    ensures answer { result ≡ is_name_text s.now }
{
    let bytes = s.as_bytes();
    if bytes.is_empty() || bytes.len() > MOST_BYTES {
        return false;
    }
    bytes.iter().all(|byte| matches!(byte, b' '..=b'~'))
}
