// Names of cells, pins, nets, instances and forks.
ghost use Rattle.std.specs.Prelude.{◌≡◌};
ghost use Rattle.std.specs.List.{list_all};
ghost use Rattle.cyc_text.specs.Name.{is_name_byte, is_name};

/// The most bytes of a name.
const MOST_BYTES: usize = 64;

fn is_name_byte(byte: u8) -> bool
    ensures { result ≡ is_name_byte byte }
{
    byte.is_ascii_alphabetic()
        || byte.is_ascii_digit()
        || byte == b'_'
        || byte == b'.'
        || byte == b'['
        || byte == b']'
        || byte == b'/'
}

fn all_name_bytes(bytes: &[u8]) -> bool
    ensures { result ≡ list_all is_name_byte bytes.now }
{
    bytes.iter().all(|byte| is_name_byte(*byte))
}

/// Whether the bytes are a name: 1 to 64 ASCII letters, digits, `_`, `.`, `[`, `]` or `/`.
///
/// Looks at no more than 64 bytes, and takes no memory.
#[tactic(auto, unfolding(crate::specs::Name::is_name))]
pub fn is_name(bytes: &[u8]) -> bool
    ensures { result ≡ is_name bytes.now }
{
    !bytes.is_empty() && bytes.len() <= MOST_BYTES && all_name_bytes(bytes)
}
