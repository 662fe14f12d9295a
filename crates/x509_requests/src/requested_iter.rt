//! Iterating over what requested extensions say.

ghost use Rattle.std.specs.Prelude.{◌≡◌, map};
ghost use Rattle.std.specs.Iterator.{YieldsFirstRef, item_count};
ghost use Rattle.x509_requests.specs.Requested.{requested_left};

use std::slice;
use x509_extensions::{ParsedExtension, X509Extension};

/// What the extensions say that a request asks for, in order.
#[derive(Debug, Drop)]
pub struct RequestedIter<'v, 'a> {
    extensions: slice::Iter<'v, X509Extension<'a>>,
}

impl<'v, 'a> RequestedIter<'v, 'a> {
    /// What these extensions say, from the first on.
    pub fn new(extensions: &'v [X509Extension<'a>]) -> Self
        ensures { requested_left result ≡ map (λ x. x.parsed_extension) extensions.now }
    {
        RequestedIter {
            extensions: extensions.iter(),
        }
    }
}

impl<'v, 'a> Iterator for RequestedIter<'v, 'a> {
    type Item = &'v ParsedExtension<'a>;

    ghost next_gives = { YieldsFirstRef requested_left };

    ghost remaining = { item_count requested_left };

    fn next(&mut self) -> Option<&'v ParsedExtension<'a>> {
        match self.extensions.next() {
            Some(extension) => Some(extension.parsed_extension()),
            None => None,
        }
    }
}
