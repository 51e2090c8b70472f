ghost use Rattle.std.specs.Prelude.{◌≡◌};
ghost use Rattle.std.specs.List.{list_all};
ghost use Rattle.bulk_json.specs.Lines.{is_space as is_space_byte, is_blank as is_all_space};

/// Whether the bytes are nothing but JSON's white space (RFC 8259): spaces, tabs, newlines and carriage returns.
pub fn is_blank(bytes: &[u8]) -> bool
    ensures { result ≡ is_all_space bytes.now }
{
    bytes.iter().all(|b| is_space(*b))
}

/// Whether the byte is JSON's white space.
pub fn is_space(byte: u8) -> bool
    ensures { result ≡ is_space_byte byte }
{
    byte == b' ' || byte == b'\t' || byte == b'\n' || byte == b'\r'
}
