ghost use Rattle.std.specs.Prelude.{◌≡◌, map};
ghost use Rattle.std.specs.List.{list_any};
ghost use Rattle.std.specs.Str.{bytes_eq};
ghost use Rattle.ctokens.specs.SymbolRows.{row_read};
ghost use Rattle.cgrammar.specs.CodeTables.{text_read};
ghost use Rattle.cgrammar.specs.Operators.{row_of};

use ctokens::same_bytes;

/// Whether bytes are one of the texts. Where the texts are written out they are compared one by one, without a table.
#[inline(always)]
pub fn is_one_of(texts: &[&str], bytes: &[u8]) -> bool
    ensures { result ≡ list_any (bytes_eq bytes.now) (map text_read texts.now) }
{
    for text in texts {
        if same_bytes(bytes, text.as_bytes()) {
            return true;
        }
    }
    false
}

/// What a table of texts says of bytes, where they are one of its texts.
pub fn entry_of<T: Copy>(rows: &[(&str, T)], bytes: &[u8]) -> Option<T>
    ensures { result ≡ row_of bytes.now (map row_read rows.now) }
{
    for row in rows {
        if same_bytes(row.0.as_bytes(), bytes) {
            return Some(row.1);
        }
    }
    None
}
