//! The HTTP methods that the paths take.
ghost use Rattle.std.specs.Prelude.{◌≡◌, Some};
ghost use Rattle.resident_requests.specs.Answers.{method_text};

use std::fmt;

/// An HTTP method that a path of the server takes.
#[derive(Clone, Copy, Debug, PartialEq, Eq, Drop)]
pub enum Method {
    /// `GET`, which reads the rooms or the resident's own record.
    Get,
    /// `PUT`, which hands in a preference list.
    Put,
    /// `POST`, which withdraws the resident from the round.
    Post,
}

impl Method {
    /// Returns the name of the method as a request contains it, for example `GET`.
    pub fn as_str(self) -> &'static str
        ensures { result.now ≡ method_text self }
    {
        match self {
            Method::Get => "GET",
            Method::Put => "PUT",
            Method::Post => "POST",
        }
    }
}

impl fmt::Display for Method {
    ghost output = { λ method. Some (method_text method) };

    fn fmt<W: fmt::Write>(&self, f: &mut fmt::Formatter<W>) -> fmt::Result {
        f.write_str(self.as_str())
    }
}
