//! What stands before a token, as far as it decides what the token is.

ghost use Rattle.std.specs.Prelude.{◌≡◌};
ghost use Rattle.std.specs.Option.{option_copied};
ghost use Rattle.tokens.specs.Contexts as spec;
ghost use Rattle.tokens.specs.Reserved.{same_word};

use crate::reserved::Reserved;
use crate::token::Kind;

#[derive(Clone, Copy)]
pub enum Context {
    /// Nothing, or what a sign may follow.
    Apart,
    /// A word, a literal or a right parenthesis, directly.
    Joined,
    /// PIC or PICTURE.
    AfterPicture,
    /// PIC or PICTURE, and IS.
    AfterPictureIs,
}

#[tactic(auto, unfolding(crate::specs::Reserved::same_word))]
fn is_word(one: Reserved, other: Reserved) -> bool
    ensures { result ≡ same_word one other }
{
    one == other
}

impl Context {
    pub fn is_joined(self) -> bool
        ensures { result ≡ spec.is_joined self }
    {
        match self {
            Context::Joined => true,
            Context::Apart | Context::AfterPicture | Context::AfterPictureIs => false,
        }
    }

    pub fn awaits_picture(self) -> bool
        ensures { result ≡ spec.awaits_picture self }
    {
        match self {
            Context::AfterPicture | Context::AfterPictureIs => true,
            Context::Apart | Context::Joined => false,
        }
    }

    /// Whether an IS may come before the picture.
    pub fn may_be_is(self) -> bool
        ensures { result ≡ spec.may_be_is self }
    {
        match self {
            Context::AfterPicture => true,
            Context::Apart | Context::Joined | Context::AfterPictureIs => false,
        }
    }

    fn after_reserved(self, word: Reserved) -> Context
        ensures { result ≡ spec.after_reserved self word }
    {
        if is_word(word, Reserved::Pic) || is_word(word, Reserved::Picture) {
            Context::AfterPicture
        } else if self.awaits_picture() {
            Context::AfterPictureIs
        } else {
            Context::Joined
        }
    }

    fn after_token(self, kind: &Kind) -> Context
        ensures { result ≡ spec.after_token self kind.now }
    {
        match kind {
            Kind::Reserved(word) => self.after_reserved(*word),
            Kind::Word(_) | Kind::Numeric(_) | Kind::Nonnumeric(_) | Kind::RightParenthesis => {
                Context::Joined
            }
            Kind::Picture(_)
            | Kind::Period
            | Kind::LeftParenthesis
            | Kind::Colon
            | Kind::Operator(_) => Context::Apart,
        }
    }

    fn after_separator(self) -> Context
        ensures { result ≡ spec.after_separator self }
    {
        match self {
            Context::Joined => Context::Apart,
            other => other,
        }
    }

    /// What stands before the token after this one, or after this separator.
    #[tactic(auto, unfolding(crate::specs::Contexts::context_after))]
    pub fn after(self, kind: Option<&Kind>) -> Context
        ensures { result ≡ spec.context_after self (option_copied kind.entry) }
    {
        match kind {
            Some(kind) => self.after_token(kind),
            None => self.after_separator(),
        }
    }
}
