//! The words of a program's arguments.

use crate::failure::Failure;
use arguments::Request;
use layout::Limits;
use std::env;

/// What the arguments ask for, of books that have these limits where no option says otherwise.
pub fn request(rt: &HostRuntime, limits: Limits) -> Result<Request, Failure> {
    let words = env::args(rt).map_err(Failure::Arguments)?;
    let mut request = Request::new(limits);
    for word in words.skip(1) {
        request
            .take(rt.alloc(), word.as_str())
            .map_err(|misuse| Failure::Word(word, misuse))?;
    }
    request.end().map_err(Failure::End)?;
    Ok(request)
}
