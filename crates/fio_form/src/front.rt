//! The front of a line.
ghost use Rattle.std.specs.Prelude.{◌≡◌, ◌<◌, ◌≤◌, ◌-◌, Some, None, [], true, false, IfSome, IfNone, drop, take, length};
ghost use Rattle.fio_form.specs.Forms.{hex_value, is_space_or_tab, is_decimal, is_hex, is_numeric, is_part};
ghost use Rattle.fio_form.specs.Fronts.{after_digits, after_front, after_piece, has_value, is_piece, past, past_piece, taken_parts, value_of};
ghost use Rattle.fio_form.specs.declared.form.Piece.TheVariants.{Blanks};
ghost use Rattle.fio_form.specs.Reading.{is_empty};
ghost use Rattle.fio_form.specs.declared.front.TheConstants.{VALUE_DIGITS};

use crate::form::{LineForm, Piece};

/// The most digits of a number that has one of a form's values.
pub(crate) const VALUE_DIGITS: usize = 8;

/// Returns whether a character is a decimal digit.
pub fn is_decimal(character: u8) -> bool
    ensures { result ≡ is_decimal character }
{
    matches!(character, b'0'..=b'9')
}

/// Returns whether a character is a space or a tab.
pub fn is_space_or_tab(character: u8) -> bool
    ensures { result ≡ is_space_or_tab character }
{
    matches!(character, b' ' | b'\t')
}

/// Returns the value of a hexadecimal digit; 16 for any other character.
pub fn hex_value(character: u8) -> u8
    ensures value { result ≡ hex_value character }
    ensures most { result ≤ 16 }
{
    match character {
        b'0'..=b'9' => character - 48,
        b'A'..=b'F' => character - 55,
        b'a'..=b'f' => character - 87,
        _ => 16,
    }
}

/// Returns whether a character is a hexadecimal digit.
pub fn is_hex(character: u8) -> bool
    ensures { result ≡ is_hex character }
{
    hex_value(character) != 16
}

/// Returns the number that hexadecimal digits are.
fn hex_number(digits: &[u8]) -> u32
    requires { length digits.now ≤ VALUE_DIGITS }
    ensures { result ≡ value_of 0 digits.now }
{
    let mut value = 0;
    let mut place = 0;
    'digits: while place < digits.len() {
        value = 16 * value + u32::from(hex_value(digits[place]) % 16);
        place += 1;
    }
    value
}

/// Returns whether digits are those of one of the values.
fn has_value(values: &[u32], digits: &[u8]) -> bool
    ensures { result ≡ has_value values.now digits.now }
{
    digits.len() <= VALUE_DIGITS && values.contains(&hex_number(digits))
}

/// Returns the length of the digits that a text begins with.
fn digits_in(text: &[u8]) -> Option<usize>
    ensures some { IfSome result (λ count. after_digits text.now ≡ Some (drop count text.now)) }
    ensures within { IfSome result (λ count. count ≤ length text.now) }
    ensures none { IfNone result (after_digits text.now ≡ None) }
{
    if text.is_empty() || !is_hex(text[0]) {
        return None;
    }
    Some(Piece::Hexadecimal.count_in(text))
}

/// Returns the length of the blanks, if any, and digits that a text begins with.
fn padded_in(text: &[u8]) -> Option<usize>
    ensures some { IfSome result (λ count. after_digits (past Blanks text.now) ≡ Some (drop count text.now)) }
    ensures within { IfSome result (λ count. count ≤ length text.now) }
    ensures none { IfNone result (after_digits (past Blanks text.now) ≡ None) }
{
    let blanks = Piece::Blanks.count_in(text);
    match digits_in(&text[blanks..]) {
        Some(count) => Some(blanks + count),
        None => None,
    }
}

impl Piece {
    /// Returns whether the piece is a number.
    pub fn is_numeric(self) -> bool
        ensures { result ≡ is_numeric self }
    {
        matches!(
            self,
            Piece::Decimal | Piece::Hexadecimal | Piece::Padded | Piece::Value
        )
    }

    /// Returns whether a character can be one of several of this piece.
    pub fn is_part(self, character: u8) -> bool
        ensures { result ≡ is_part self character }
    {
        match self {
            Piece::Character(_) | Piece::Quote => false,
            Piece::Decimal => is_decimal(character),
            Piece::Hexadecimal | Piece::Padded | Piece::Value => is_hex(character),
            Piece::Blanks => is_space_or_tab(character),
        }
    }

    /// Returns how many characters of this piece a text begins with.
    pub(crate) fn count_in(self, text: &[u8]) -> usize
        ensures taken_parts { taken_parts self text.now ≡ take result text.now }
        ensures past { past self text.now ≡ drop result text.now }
        ensures within { result ≤ length text.now }
    {
        let mut count = 0;
        'characters: while count < text.len() && self.is_part(text[count]) {
            count += 1;
        }
        count
    }

    /// Returns whether all characters of a text are of this piece, after the blanks of a padded number.
    pub(crate) fn is_all(self, text: &[u8]) -> bool
        ensures { result ≡ is_empty (past_piece self text.now) }
    {
        match self {
            Piece::Padded => Piece::Hexadecimal.is_rest(&text[Piece::Blanks.count_in(text)..]),
            piece => piece.is_rest(text),
        }
    }

    /// Returns whether all characters of a text are of this piece, without blanks.
    fn is_rest(self, text: &[u8]) -> bool
        ensures { result ≡ is_empty (past self text.now) }
    {
        self.count_in(text) == text.len()
    }

    /// Returns the length of the piece that a text begins with.
    pub(crate) fn length_in(self, values: &[u32], text: &[u8]) -> Option<usize>
        ensures some { IfSome result (λ count. after_piece values.now self text.now ≡ Some (drop count text.now)) }
        ensures within { IfSome result (λ count. count ≤ length text.now) }
        ensures none { IfNone result (after_piece values.now self text.now ≡ None) }
    {
        if text.is_empty() {
            return None;
        }
        match self {
            Piece::Character(character) => if text[0] == character { Some(1) } else { None },
            Piece::Quote => if matches!(text[0], b'"' | b'\'') {
                Some(1)
            } else {
                None
            },
            Piece::Padded => padded_in(text),
            piece => {
                let count = piece.count_in(text);
                if piece.is_part(text[0])
                    && (piece != Piece::Value || has_value(values, &text[..count]))
                {
                    Some(count)
                } else {
                    None
                }
            }
        }
    }
}

/// Returns where the characters of a piece end that a text has from a place on.
fn end_of(piece: Piece, text: &[u8], place: usize) -> usize
    requires { place ≤ length text.now }
    ensures past { drop result text.now ≡ past piece (drop place text.now) }
    ensures within { (place ≤ result) × (result ≤ length text.now) }
{
    let mut end = place;
    'characters: while end < text.len() && piece.is_part(text[end]) {
        end += 1;
    }
    end
}

/// Returns where the hexadecimal digits end that a text has from a place on, if it has some.
fn digits_end(text: &[u8], place: usize) -> Option<usize>
    requires { place ≤ length text.now }
    ensures some { IfSome result (λ end. after_digits (drop place text.now) ≡ Some (drop end text.now)) }
    ensures within { IfSome result (λ end. end ≤ length text.now) }
    ensures none { IfNone result (after_digits (drop place text.now) ≡ None) }
{
    if place == text.len() || !is_hex(text[place]) {
        return None;
    }
    Some(end_of(Piece::Hexadecimal, text, place + 1))
}

/// Returns where a piece ends that a text has at a place. Those that most fronts have are read without a call of `length_in`.
fn piece_end(piece: Piece, values: &[u32], text: &[u8], place: usize) -> Option<usize>
    requires { place ≤ length text.now }
    ensures some { IfSome result (λ end. after_piece values.now piece (drop place text.now) ≡ Some (drop end text.now)) }
    ensures within { IfSome result (λ end. end ≤ length text.now) }
    ensures none { IfNone result (after_piece values.now piece (drop place text.now) ≡ None) }
{
    if place == text.len() {
        return None;
    }
    match piece {
        Piece::Character(character) => if text[place] == character {
            Some(place + 1)
        } else {
            None
        },
        Piece::Hexadecimal => digits_end(text, place),
        Piece::Padded => digits_end(text, end_of(Piece::Blanks, text, place)),
        Piece::Blanks if is_space_or_tab(text[place]) => Some(end_of(piece, text, place + 1)),
        Piece::Blanks => None,
        piece => match piece.length_in(values, &text[place..]) {
            Some(count) => Some(place + count),
            None => None,
        },
    }
}

/// Returns where pieces end that a text begins with.
fn after_pieces(values: &[u32], pieces: &[Piece], text: &[u8]) -> Option<usize>
    ensures some { IfSome result (λ place. after_front values.now pieces.now text.now ≡ Some (drop place text.now)) }
    ensures within { IfSome result (λ place. place ≤ length text.now) }
    ensures none { IfNone result (after_front values.now pieces.now text.now ≡ None) }
{
    let mut place = 0;
    let mut at = 0;
    'pieces: while at < pieces.len() {
        match piece_end(pieces[at], values, text, place) {
            Some(end) => place = end,
            None => return None,
        }
        at += 1;
    }
    Some(place)
}

/// Returns where the front of a form ends that a text begins with.
pub fn front_in(form: &LineForm, text: &[u8]) -> Option<usize>
    ensures some { IfSome result (λ place. after_front form.now.values.items form.now.front.items text.now ≡ Some (drop place text.now)) }
    ensures within { IfSome result (λ place. place ≤ length text.now) }
    ensures none { IfNone result (after_front form.now.values.items form.now.front.items text.now ≡ None) }
{
    after_pieces(&form.values, &form.front, text)
}

/// Returns the pieces of a front from one on up to another.
fn pieces_of(front: &[Piece], from: usize, to: usize) -> &[Piece]
    ensures { result.now ≡ take (to - from) (drop from front.now) }
{
    if to <= from {
        return &front[..0];
    }
    if front.len() <= from {
        return &front[..0];
    }
    if to < front.len() {
        return &front[from..to];
    }
    &front[from..]
}

/// Returns where the pieces of a front end, from one on up to another, that a text begins with.
pub fn pieces_in(form: &LineForm, from: usize, to: usize, text: &[u8]) -> Option<usize>
    ensures some { IfSome result (λ place. after_front form.now.values.items (take (to - from) (drop from form.now.front.items)) text.now ≡ Some (drop place text.now)) }
    ensures within { IfSome result (λ place. place ≤ length text.now) }
    ensures none { IfNone result (after_front form.now.values.items (take (to - from) (drop from form.now.front.items)) text.now ≡ None) }
{
    after_pieces(&form.values, pieces_of(&form.front, from, to), text)
}
