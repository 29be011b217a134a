//! The call site that a caller hands in, and the trait through which calls take it.
ghost use Rattle.std.specs.Prelude.{◌≡◌};
ghost use Rattle.parallel_policy.specs.declared.site.Site.{Site};

/// A call site: a place in a source file, which a caller hands in.
///
/// The language has no call that tells a function where it was called from, so each call that keeps
/// something by its call site takes a `Site`. Two calls that are to be told apart are given
/// different ones.
#[derive(Clone, Copy, Debug, PartialEq, Eq, Hash)]
pub struct Site {
    /// The name of the file.
    pub file: &'static str,
    /// The line in the file, by custom from 1 on.
    pub line: u32,
    /// The column in the line, by custom from 1 on.
    pub column: u32,
}

/// What stands for a call site: a `Site` itself.
///
/// A function that takes a `Site` and a closure together can't be called with a closure that
/// borrows two locals: the checker rejects a call whose callee names `'static` in its signature, as
/// the name of a site's file does, where a type argument names several lifetimes. So such functions
/// take a `P: Place` in place of the `Site`.
pub trait Place: Copy {
    ghost site_of: { Self → Site };

    /// The call site that it stands for.
    fn site(&self) -> Site
        ensures { result ≡ site_of self.now };
}

impl Place for Site {
    ghost site_of = { λ s. s };

    fn site(&self) -> Site {
        *self
    }
}
