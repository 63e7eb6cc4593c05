// Where the pieces of a selector's text end, and the words of a class.
ghost use Rattle.std.specs.Prelude.{◌≡◌, ◌≤◌, ◌<◌, ◌∷◌, length, not, option_map, IfSome};
ghost use Rattle.std.specs.List.{prefix_len, before_first};
ghost use Rattle.sv_select.specs.Borders as spec;

// The kinds of bytes at which pieces end.
#[derive(Clone, Copy)]
pub(crate) enum Border {
    // `>`, between an element and its children.
    Child,
    // A space, between an element and what is below it.
    Space,
    // `#` or `.`, before a part of a compound.
    Part,
    // White space of ASCII, between words of a class.
    White,
}

fn is_border(border: Border, byte: u8) -> bool
    ensures { result ≡ spec.is_border border byte }
{
    match border {
        Border::Child => byte == b'>',
        Border::Space => byte == b' ',
        Border::Part => byte == b'#' || byte == b'.',
        Border::White => byte.is_ascii_whitespace(),
    }
}

fn front_len(border: Border, z: &[u8]) -> usize
    ensures value { result ≡ prefix_len (λ b. not (spec.is_border border b)) z.now }
    ensures within { result ≤ length z.now }
{
    z.iter().take_while(|b| !is_border(border, **b)).count()
}

// The text before the first border.
pub(crate) fn front(border: Border, z: &[u8]) -> &[u8]
    ensures { result.now ≡ before_first (spec.is_border border) z.now }
{
    &z[..front_len(border, z)]
}

// The text from the first border on.
pub(crate) fn rest(border: Border, z: &[u8]) -> &[u8]
    ensures value { result.now ≡ spec.rest border z.now }
    ensures within { length result.now ≤ length z.now }
{
    &z[front_len(border, z)..]
}

// The text behind the first border; `None` exactly where there is none.
pub(crate) fn behind(border: Border, z: &[u8]) -> Option<&[u8]>
    ensures pieces { spec.pieces border z.now ≡ before_first (spec.is_border border) z.now ∷ spec.pieces_in border (option_map (λ t. t.now) result) }
    ensures shorter { IfSome result (λ t. length t.now < length z.now) }
{
    let (_, further) = rest(border, z).split_first()?;
    Some(further)
}
