//! Why a file gives no version of a program: the error of the part that refuses it, as it is.
use prv_lex::LexError;
use prv_names::NameError;
use prv_parse::ParseError;
use thiserror::Error;

/// What keeps a file from giving a version. A place is a byte offset in the file.
#[derive(Debug, Drop, Error)]
pub enum VersionError {
    /// The first thing that is no token.
    #[error(transparent)]
    Lex(LexError),
    /// The first token at which the text can be no program, or that is past a limit.
    #[error(transparent)]
    Parse(ParseError),
    /// The first thing that is wrong with a name, or that there are too many of.
    #[error(transparent)]
    Name(NameError),
}

impl VersionError {
    ghost use Rattle.std.specs.Prelude.{◌≡◌};
    ghost use Rattle.prv_version.specs.Versions.{is_memory};

    /// Whether memory ran out, in whichever part; any other error is the file's own.
    pub fn is_memory(&self) -> bool
        ensures { result ≡ is_memory self.now }
    {
        matches!(
            self,
            VersionError::Lex(LexError::Memory)
                | VersionError::Parse(ParseError::Memory)
                | VersionError::Name(NameError::Memory)
        )
    }
}

impl From<LexError> for VersionError {
    ghost use Rattle.std.specs.Prelude.{◌≡◌};
    ghost use Rattle.prv_version.specs.declared.error.VersionError.TheVariants.{Lex};

    ghost from_gives = { λ error result. result ≡ Lex error };

    fn from(error: LexError) -> VersionError {
        VersionError::Lex(error)
    }
}

impl From<ParseError> for VersionError {
    ghost use Rattle.std.specs.Prelude.{◌≡◌};
    ghost use Rattle.prv_version.specs.declared.error.VersionError.TheVariants.{Parse};

    ghost from_gives = { λ error result. result ≡ Parse error };

    fn from(error: ParseError) -> VersionError {
        VersionError::Parse(error)
    }
}

impl From<NameError> for VersionError {
    ghost use Rattle.std.specs.Prelude.{◌≡◌};
    ghost use Rattle.prv_version.specs.declared.error.VersionError.TheVariants.{Name};

    ghost from_gives = { λ error result. result ≡ Name error };

    fn from(error: NameError) -> VersionError {
        VersionError::Name(error)
    }
}
