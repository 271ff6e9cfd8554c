//! Comments.
ghost use Rattle.std.specs.Prelude.{◌≡◌, Some};

use crate::target::Target;
use dbc_values::{Checked, Copied, Memory, Text};
use std::marker::Model;

/// A comment: `CM_ target "text";`.
#[derive(Drop)]
pub struct Comment {
    /// The object that the comment is about.
    pub target: Target,
    /// The text.
    pub text: Text,
}

impl Model for Comment {
    ghost use Rattle.dbc_records.specs.Comments as comments;

    ghost Value = { comments.Comment };

    ghost view = { λ a. record { target = a.target; text = a.text } };

    ghost invariant = { λ a. comments.IsComment (record { target = a.target; text = a.text }) };
}

impl Comment {
    /// The comment; never `None`.
    pub fn new(target: Target, text: Text) -> Option<Comment>
        ensures { result ≡ Some (record { target = target; text = text }) }
    {
        Some(Comment { target, text })
    }
}

impl Checked for Comment {
    ghost use Rattle.dbc_records.specs.Comments.{IsComment};

    ghost IsValid = { IsComment };
}

impl Copied for Comment {
    fn copy(&self) -> Result<Comment, Memory> {
        let target = self.target.copy()?;
        let text = self.text.copy()?;
        Ok(Comment { target, text })
    }
}
