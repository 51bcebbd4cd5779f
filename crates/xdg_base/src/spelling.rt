//! What stands as a name in a text, and what is escaped in any other.

ghost use Rattle.std.specs.Prelude.{◌≡◌, true, nat_lt, ◌<◌, [], get_or, length};
ghost use Rattle.std.specs.List.{list_all};
ghost use Rattle.xdg_base.specs.Spelling.{keywords, places_of, IsKeywordPlace, is_keyword, begins_name, continues_name, is_name, is_escaped};

/// The keywords of grammars, in the order of their table.
const KEYWORDS: [&str; 23] = [
    "defdim",
    "deftype",
    "deflabeltype",
    "defattrstype",
    "defentrytype",
    "useprinciple",
    "dims",
    "args",
    "output",
    "useoutput",
    "defclass",
    "defentry",
    "dim",
    "usedim",
    "tuple",
    "set",
    "iset",
    "valency",
    "map",
    "card",
    "bool",
    "int",
    "string",
];

/// The keyword that stands at a place of their table.
pub fn keyword_at(place: usize) -> &'static str
    requires { place < length keywords }
    ensures { result.now ≡ get_or keywords place [] }
{
    KEYWORDS[place]
}

/// At which places of their table the keywords of so many bytes stand.
#[tactic(auto, unfolding(crate::specs::Spelling::places_of))]
fn places_of(bytes: usize) -> &'static [usize]
    ensures places { result.now ≡ places_of bytes }
    ensures within { list_all (λ place. nat_lt place (length keywords)) result.now ≡ true }
{
    match bytes {
        3 => &[12, 15, 18, 21],
        4 => &[6, 7, 16, 19, 20],
        5 => &[14],
        6 => &[0, 8, 13, 22],
        7 => &[1, 17],
        8 => &[10, 11],
        9 => &[9],
        12 => &[2, 3, 4, 5],
        _ => &[],
    }
}

/// At which place of their table the keyword stands that a text is. It is compared with those of its length alone.
pub fn keyword_place(text: &str) -> Option<usize>
    ensures { IsKeywordPlace text.now result }
{
    for place in places_of(text.len()) {
        if text == keyword_at(*place) {
            return Some(*place);
        }
    }
    None
}

/// Whether a text is a keyword of grammars.
fn is_keyword(text: &str) -> bool
    ensures { result ≡ is_keyword text.now }
{
    keyword_place(text).is_some()
}

/// Whether a name or a keyword begins with this character, for what reads a text: an ASCII letter or `_`.
pub fn begins_name(c: char) -> bool
    ensures { result ≡ begins_name c }
{
    c.is_ascii_alphabetic() || c == '_'
}

/// Whether a name or a keyword goes on with this character, for what reads a text: an ASCII letter or digit, `_` or `.`.
pub fn continues_name(c: char) -> bool
    ensures { result ≡ continues_name c }
{
    c.is_ascii_alphanumeric() || c == '_' || c == '.'
}

/// Whether each of the bytes continues a name.
fn continue_name(bytes: &[u8]) -> bool
    ensures { result ≡ list_all continues_name bytes.now }
{
    bytes.iter().all(|byte| continues_name(char::from(*byte)))
}

/// Whether a text can stand as a name, for what writes one: an ASCII letter or `_`, then ASCII letters, digits, `_` and `.`, and no
/// keyword. Any other text has to be quoted.
#[tactic(auto, using(crate::proofs::Names::name_of_parts))]
pub fn is_name(text: &str) -> bool
    ensures { result ≡ is_name text.now }
{
    match text.as_bytes().split_first() {
        Some((first, others)) => {
            begins_name(char::from(*first)) && continue_name(others) && !is_keyword(text)
        }
        None => false,
    }
}

/// Whether a backslash stands before this byte in a quoted text: a quotation mark or a backslash.
pub fn is_escaped(byte: u8) -> bool
    ensures { result ≡ is_escaped byte }
{
    byte == b'"' || byte == b'\\'
}
