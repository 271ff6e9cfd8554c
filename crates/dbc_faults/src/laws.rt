//! A law of the definitions. The function does nothing: what it ensures is the law.
ghost use Rattle.std.specs.Prelude.{◌≡◌, is_some};
ghost use Rattle.std.specs.List.{list_any};
ghost use Rattle.dbc_tokens.specs.Tokens.{Token};
ghost use Rattle.dbc_reader.specs.Pattern.{Pattern, Seen, after, has};
ghost use Rattle.dbc_faults.specs.Patterns.{firsts};

/// A token is allowed where a pattern is left exactly when it is of one of the classes that are expected there.
pub fn expected_classes()
    ensures { (pattern : Pattern) (t : Token) (seen : Seen) → is_some (after pattern t seen)
        ≡ list_any (λ c. has c t seen) (firsts pattern) }
{}
