//! The symbols of pictures, and what each is for.

ghost use Rattle.std.specs.Prelude.{◌≡◌};
ghost use Rattle.picture.specs.Symbols as spec;
ghost use Rattle.picture.specs.Text as text_of;

/// A symbol of a picture (COBOL-85, Nucleus, the PICTURE clause). P has no form here.
#[derive(Clone, Copy, PartialEq, Eq)]
pub enum Symbol {
    /// `A`, a letter or a space.
    A,
    /// `X`, any character.
    X,
    /// `9`, a digit.
    Nine,
    /// `S`, an operational sign. It takes no place.
    S,
    /// `V`, an assumed point. It takes no place.
    V,
    /// `B`, a space that is inserted.
    B,
    /// `0`, inserted.
    Zero,
    /// `/`, inserted.
    Slash,
    /// `,`, inserted.
    Comma,
    /// `.`, the point.
    Point,
    /// `Z`, a digit, or a space for a leading zero.
    Z,
    /// `*`, a digit, or an asterisk for a leading zero.
    Star,
    /// `+`, a sign, fixed or floating.
    Plus,
    /// `-`, a sign, fixed or floating.
    Minus,
    /// `$`, the currency sign, fixed or floating.
    Currency,
    /// `CR`, two places that are shown for a negative value.
    Cr,
    /// `DB`, two places that are shown for a negative value.
    Db,
}

/// How leading zeros are suppressed in a numeric edited picture.
#[derive(Clone, Copy, PartialEq, Eq)]
pub enum Suppression {
    /// They are shown.
    Nothing,
    /// By `Z`, as spaces.
    Spaces,
    /// By `*`, as asterisks.
    Asterisks,
    /// By a floating currency sign.
    FloatingCurrency,
    /// By a floating `+`.
    FloatingPlus,
    /// By a floating `-`.
    FloatingMinus,
}

impl Symbol {
    pub fn is_insertion(self) -> bool
        ensures { result ≡ spec.is_insertion self }
    {
        matches!(
            self,
            Symbol::B | Symbol::Zero | Symbol::Slash | Symbol::Comma
        )
    }

    pub fn is_simple_insertion(self) -> bool
        ensures { result ≡ spec.is_simple_insertion self }
    {
        matches!(self, Symbol::B | Symbol::Zero | Symbol::Slash)
    }

    pub fn is_alphanumeric(self) -> bool
        ensures { result ≡ spec.is_alphanumeric self }
    {
        matches!(self, Symbol::A | Symbol::X | Symbol::Nine)
    }

    pub fn is_point(self) -> bool
        ensures { result ≡ spec.is_point self }
    {
        matches!(self, Symbol::Point | Symbol::V)
    }

    pub fn is_end_sign(self) -> bool
        ensures { result ≡ spec.is_end_sign self }
    {
        matches!(self, Symbol::Plus | Symbol::Minus | Symbol::Cr | Symbol::Db)
    }

    /// The character places that the symbol takes.
    pub fn width(self) -> u128
        ensures { result ≡ spec.width self }
    {
        match self {
            Symbol::S | Symbol::V => 0,
            Symbol::Cr | Symbol::Db => 2,
            _ => 1,
        }
    }

    /// The character that writes the symbol, or the first of two.
    pub fn letter(self) -> u8
        ensures { result ≡ text_of.letter self }
    {
        match self {
            Symbol::A => b'A',
            Symbol::X => b'X',
            Symbol::Nine => b'9',
            Symbol::S => b'S',
            Symbol::V => b'V',
            Symbol::B => b'B',
            Symbol::Zero => b'0',
            Symbol::Slash => b'/',
            Symbol::Comma => b',',
            Symbol::Point => b'.',
            Symbol::Z => b'Z',
            Symbol::Star => b'*',
            Symbol::Plus => b'+',
            Symbol::Minus => b'-',
            Symbol::Currency => b'$',
            Symbol::Cr => b'C',
            Symbol::Db => b'D',
        }
    }

    /// The symbol that the character writes by itself.
    #[tactic(auto, unfolding(crate::specs::Text::symbol_of))]
    pub fn from_letter(character: u8) -> Option<Symbol>
        ensures { result ≡ text_of.symbol_of character }
    {
        match character {
            b'A' => Some(Symbol::A),
            b'X' => Some(Symbol::X),
            b'9' => Some(Symbol::Nine),
            b'S' => Some(Symbol::S),
            b'V' => Some(Symbol::V),
            b'B' => Some(Symbol::B),
            b'0' => Some(Symbol::Zero),
            b'/' => Some(Symbol::Slash),
            b',' => Some(Symbol::Comma),
            b'.' => Some(Symbol::Point),
            b'Z' => Some(Symbol::Z),
            b'*' => Some(Symbol::Star),
            b'+' => Some(Symbol::Plus),
            b'-' => Some(Symbol::Minus),
            b'$' => Some(Symbol::Currency),
            _ => None,
        }
    }
}

impl Suppression {
    /// The symbol is the one that suppresses.
    pub fn is_by(self, symbol: Symbol) -> bool
        ensures { result ≡ spec.is_by self symbol }
    {
        match self {
            Suppression::Nothing => false,
            Suppression::Spaces => matches!(symbol, Symbol::Z),
            Suppression::Asterisks => matches!(symbol, Symbol::Star),
            Suppression::FloatingCurrency => matches!(symbol, Symbol::Currency),
            Suppression::FloatingPlus => matches!(symbol, Symbol::Plus),
            Suppression::FloatingMinus => matches!(symbol, Symbol::Minus),
        }
    }

    pub fn is_floating_sign(self) -> bool
        ensures { result ≡ spec.is_floating_sign self }
    {
        matches!(self, Suppression::FloatingPlus | Suppression::FloatingMinus)
    }

    pub fn is_floating(self) -> bool
        ensures { result ≡ spec.is_floating self }
    {
        self.is_floating_sign() || matches!(self, Suppression::FloatingCurrency)
    }

    /// How often the symbol stands before the point, at the least.
    pub fn least(self) -> u128
        ensures { result ≡ spec.least_count self }
    {
        match self {
            Suppression::Nothing => 0,
            Suppression::Spaces | Suppression::Asterisks => 1,
            _ => 2,
        }
    }
}
