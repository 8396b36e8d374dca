//! The spellings of the reserved words.

ghost use Rattle.std.specs.Prelude.{◌≡◌, map};
ghost use Rattle.tokens.specs.Spelling as spec;

use crate::reserved::Reserved;

const A_WORDS: [(&[u8], Reserved); 17] = [
    (b"ACCEPT", Reserved::Accept),
    (b"ACCESS", Reserved::Access),
    (b"ADD", Reserved::Add),
    (b"ADVANCING", Reserved::Advancing),
    (b"AFTER", Reserved::After),
    (b"ALL", Reserved::All),
    (b"ALPHABETIC", Reserved::Alphabetic),
    (b"ALPHABETIC-LOWER", Reserved::AlphabeticLower),
    (b"ALPHABETIC-UPPER", Reserved::AlphabeticUpper),
    (b"ALSO", Reserved::Also),
    (b"ALTERNATE", Reserved::Alternate),
    (b"AND", Reserved::And),
    (b"ANY", Reserved::Any),
    (b"ARE", Reserved::Are),
    (b"ASSIGN", Reserved::Assign),
    (b"AT", Reserved::At),
    (b"AUTHOR", Reserved::Author),
];

const B_WORDS: [(&[u8], Reserved); 5] = [
    (b"BEFORE", Reserved::Before),
    (b"BINARY", Reserved::Binary),
    (b"BLANK", Reserved::Blank),
    (b"BLOCK", Reserved::Block),
    (b"BY", Reserved::By),
];

const C_WORDS: [(&[u8], Reserved); 12] = [
    (b"CHARACTER", Reserved::Character),
    (b"CHARACTERS", Reserved::Characters),
    (b"CLOSE", Reserved::Close),
    (b"COMP", Reserved::Comp),
    (b"COMP-3", Reserved::Comp3),
    (b"COMPUTATIONAL", Reserved::Computational),
    (b"COMPUTATIONAL-3", Reserved::Computational3),
    (b"COMPUTE", Reserved::Compute),
    (b"CONFIGURATION", Reserved::Configuration),
    (b"CONTAINS", Reserved::Contains),
    (b"CONTINUE", Reserved::Continue),
    (b"CONVERTING", Reserved::Converting),
];

const D_WORDS: [(&[u8], Reserved); 11] = [
    (b"DATA", Reserved::Data),
    (b"DATE", Reserved::Date),
    (b"DATE-COMPILED", Reserved::DateCompiled),
    (b"DATE-WRITTEN", Reserved::DateWritten),
    (b"DELETE", Reserved::Delete),
    (b"DELIMITED", Reserved::Delimited),
    (b"DISPLAY", Reserved::Display),
    (b"DIVIDE", Reserved::Divide),
    (b"DIVISION", Reserved::Division),
    (b"DUPLICATES", Reserved::Duplicates),
    (b"DYNAMIC", Reserved::Dynamic),
];

const E_WORDS: [(&[u8], Reserved); 22] = [
    (b"ELSE", Reserved::Else),
    (b"END", Reserved::End),
    (b"END-ADD", Reserved::EndAdd),
    (b"END-COMPUTE", Reserved::EndCompute),
    (b"END-DELETE", Reserved::EndDelete),
    (b"END-DIVIDE", Reserved::EndDivide),
    (b"END-EVALUATE", Reserved::EndEvaluate),
    (b"END-IF", Reserved::EndIf),
    (b"END-MULTIPLY", Reserved::EndMultiply),
    (b"END-PERFORM", Reserved::EndPerform),
    (b"END-READ", Reserved::EndRead),
    (b"END-REWRITE", Reserved::EndRewrite),
    (b"END-START", Reserved::EndStart),
    (b"END-STRING", Reserved::EndString),
    (b"END-SUBTRACT", Reserved::EndSubtract),
    (b"END-WRITE", Reserved::EndWrite),
    (b"ENVIRONMENT", Reserved::Environment),
    (b"EQUAL", Reserved::Equal),
    (b"ERROR", Reserved::Error),
    (b"EVALUATE", Reserved::Evaluate),
    (b"EXIT", Reserved::Exit),
    (b"EXTEND", Reserved::Extend),
];

const F_WORDS: [(&[u8], Reserved); 8] = [
    (b"FALSE", Reserved::False),
    (b"FD", Reserved::Fd),
    (b"FILE", Reserved::File),
    (b"FILE-CONTROL", Reserved::FileControl),
    (b"FILLER", Reserved::Filler),
    (b"FIRST", Reserved::First),
    (b"FOR", Reserved::For),
    (b"FROM", Reserved::From),
];

const G_WORDS: [(&[u8], Reserved); 2] = [
    (b"GIVING", Reserved::Giving),
    (b"GREATER", Reserved::Greater),
];

const H_WORDS: [(&[u8], Reserved); 2] = [
    (b"HIGH-VALUE", Reserved::HighValue),
    (b"HIGH-VALUES", Reserved::HighValues),
];

const I_WORDS: [(&[u8], Reserved); 14] = [
    (b"I-O", Reserved::InputOutputMode),
    (b"IDENTIFICATION", Reserved::Identification),
    (b"IF", Reserved::If),
    (b"IN", Reserved::In),
    (b"INDEXED", Reserved::Indexed),
    (b"INITIAL", Reserved::Initial),
    (b"INITIALIZE", Reserved::Initialize),
    (b"INPUT", Reserved::Input),
    (b"INPUT-OUTPUT", Reserved::InputOutput),
    (b"INSPECT", Reserved::Inspect),
    (b"INSTALLATION", Reserved::Installation),
    (b"INTO", Reserved::Into),
    (b"INVALID", Reserved::Invalid),
    (b"IS", Reserved::Is),
];

const J_WORDS: [(&[u8], Reserved); 2] = [
    (b"JUST", Reserved::Just),
    (b"JUSTIFIED", Reserved::Justified),
];

const K_WORDS: [(&[u8], Reserved); 1] = [(b"KEY", Reserved::Key)];

const L_WORDS: [(&[u8], Reserved); 6] = [
    (b"LABEL", Reserved::Label),
    (b"LEADING", Reserved::Leading),
    (b"LEFT", Reserved::Left),
    (b"LESS", Reserved::Less),
    (b"LOW-VALUE", Reserved::LowValue),
    (b"LOW-VALUES", Reserved::LowValues),
];

const M_WORDS: [(&[u8], Reserved); 3] = [
    (b"MODE", Reserved::Mode),
    (b"MOVE", Reserved::Move),
    (b"MULTIPLY", Reserved::Multiply),
];

const N_WORDS: [(&[u8], Reserved); 5] = [
    (b"NEGATIVE", Reserved::Negative),
    (b"NEXT", Reserved::Next),
    (b"NO", Reserved::No),
    (b"NOT", Reserved::Not),
    (b"NUMERIC", Reserved::Numeric),
];

const O_WORDS: [(&[u8], Reserved); 12] = [
    (b"OBJECT-COMPUTER", Reserved::ObjectComputer),
    (b"OCCURS", Reserved::Occurs),
    (b"OF", Reserved::Of),
    (b"OMITTED", Reserved::Omitted),
    (b"ON", Reserved::On),
    (b"OPEN", Reserved::Open),
    (b"OPTIONAL", Reserved::Optional),
    (b"OR", Reserved::Or),
    (b"ORGANIZATION", Reserved::Organization),
    (b"OTHER", Reserved::Other),
    (b"OUTPUT", Reserved::Output),
    (b"OVERFLOW", Reserved::Overflow),
];

const P_WORDS: [(&[u8], Reserved); 9] = [
    (b"PACKED-DECIMAL", Reserved::PackedDecimal),
    (b"PERFORM", Reserved::Perform),
    (b"PIC", Reserved::Pic),
    (b"PICTURE", Reserved::Picture),
    (b"POINTER", Reserved::Pointer),
    (b"POSITIVE", Reserved::Positive),
    (b"PROCEDURE", Reserved::Procedure),
    (b"PROGRAM", Reserved::Program),
    (b"PROGRAM-ID", Reserved::ProgramId),
];

const Q_WORDS: [(&[u8], Reserved); 2] = [
    (b"QUOTE", Reserved::Quote),
    (b"QUOTES", Reserved::Quotes),
];

const R_WORDS: [(&[u8], Reserved); 12] = [
    (b"RANDOM", Reserved::Random),
    (b"READ", Reserved::Read),
    (b"RECORD", Reserved::Record),
    (b"RECORDS", Reserved::Records),
    (b"REDEFINES", Reserved::Redefines),
    (b"RELATIVE", Reserved::Relative),
    (b"REMAINDER", Reserved::Remainder),
    (b"REPLACING", Reserved::Replacing),
    (b"REWRITE", Reserved::Rewrite),
    (b"RIGHT", Reserved::Right),
    (b"ROUNDED", Reserved::Rounded),
    (b"RUN", Reserved::Run),
];

const S_WORDS: [(&[u8], Reserved); 19] = [
    (b"SECTION", Reserved::Section),
    (b"SECURITY", Reserved::Security),
    (b"SELECT", Reserved::Select),
    (b"SEPARATE", Reserved::Separate),
    (b"SEQUENTIAL", Reserved::Sequential),
    (b"SET", Reserved::Set),
    (b"SIGN", Reserved::Sign),
    (b"SIZE", Reserved::Size),
    (b"SOURCE-COMPUTER", Reserved::SourceComputer),
    (b"SPACE", Reserved::Space),
    (b"SPACES", Reserved::Spaces),
    (b"STANDARD", Reserved::Standard),
    (b"START", Reserved::Start),
    (b"STATUS", Reserved::Status),
    (b"STOP", Reserved::Stop),
    (b"STRING", Reserved::String),
    (b"SUBTRACT", Reserved::Subtract),
    (b"SYNC", Reserved::Sync),
    (b"SYNCHRONIZED", Reserved::Synchronized),
];

const T_WORDS: [(&[u8], Reserved); 10] = [
    (b"TALLYING", Reserved::Tallying),
    (b"TEST", Reserved::Test),
    (b"THAN", Reserved::Than),
    (b"THEN", Reserved::Then),
    (b"THROUGH", Reserved::Through),
    (b"THRU", Reserved::Thru),
    (b"TIMES", Reserved::Times),
    (b"TO", Reserved::To),
    (b"TRAILING", Reserved::Trailing),
    (b"TRUE", Reserved::True),
];

const U_WORDS: [(&[u8], Reserved); 2] = [(b"UNTIL", Reserved::Until), (b"USAGE", Reserved::Usage)];

const V_WORDS: [(&[u8], Reserved); 3] = [
    (b"VALUE", Reserved::Value),
    (b"VALUES", Reserved::Values),
    (b"VARYING", Reserved::Varying),
];

const W_WORDS: [(&[u8], Reserved); 4] = [
    (b"WHEN", Reserved::When),
    (b"WITH", Reserved::With),
    (b"WORKING-STORAGE", Reserved::WorkingStorage),
    (b"WRITE", Reserved::Write),
];

const Z_WORDS: [(&[u8], Reserved); 3] = [
    (b"ZERO", Reserved::Zero),
    (b"ZEROES", Reserved::Zeroes),
    (b"ZEROS", Reserved::Zeros),
];

/// What a word in upper case is, where it is reserved.
#[tactic(auto, unfolding(crate::specs::Spelling::reserved_word))]
pub fn reserved(word: &[u8]) -> Option<Reserved>
    ensures { result ≡ spec.reserved_word word.now }
{
    match word {
        [letter, ..] => look_up_by_letter(*letter, word),
        [] => None,
    }
}

#[tactic(auto, unfolding(crate::specs::Spelling::look_up))]
fn look_up(mut table: &[(&[u8], Reserved)], word: &[u8]) -> Option<Reserved>
    ensures { result ≡ spec.look_up (map (λ one. (one.0.now, one.1)) table.entry.now) word.now }
{
    while let [one, more @ ..] = table {
        if one.0 == word {
            return Some(one.1);
        }
        table = more;
    }
    None
}

/// What the word is, by the words that begin with this letter.
#[tactic(none)]
fn look_up_by_letter(letter: u8, word: &[u8]) -> Option<Reserved>
    ensures { result ≡ spec.look_up (spec.beginning_with letter) word.now }
{
    match letter {
        b'A' => look_up(&A_WORDS, word),
        b'B' => look_up(&B_WORDS, word),
        b'C' => look_up(&C_WORDS, word),
        b'D' => look_up(&D_WORDS, word),
        b'E' => look_up(&E_WORDS, word),
        b'F' => look_up(&F_WORDS, word),
        b'G' => look_up(&G_WORDS, word),
        b'H' => look_up(&H_WORDS, word),
        b'I' => look_up(&I_WORDS, word),
        b'J' => look_up(&J_WORDS, word),
        b'K' => look_up(&K_WORDS, word),
        b'L' => look_up(&L_WORDS, word),
        b'M' => look_up(&M_WORDS, word),
        b'N' => look_up(&N_WORDS, word),
        b'O' => look_up(&O_WORDS, word),
        b'P' => look_up(&P_WORDS, word),
        b'Q' => look_up(&Q_WORDS, word),
        b'R' => look_up(&R_WORDS, word),
        b'S' => look_up(&S_WORDS, word),
        b'T' => look_up(&T_WORDS, word),
        b'U' => look_up(&U_WORDS, word),
        b'V' => look_up(&V_WORDS, word),
        b'W' => look_up(&W_WORDS, word),
        b'Z' => look_up(&Z_WORDS, word),
        _ => None,
    }
}
