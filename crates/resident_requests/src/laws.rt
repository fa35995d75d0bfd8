//! Theorems about the definitions: each is the contract of a function that does nothing.
ghost use Rattle.std.specs.Prelude.{◌≡◌, ◌++◌, List, ℕ, true, false};
ghost use Rattle.httparse.specs.Grammar.{EndsInTarget};
ghost use Rattle.resident_requests.specs.Asks.{Asked, Asks, BeginsTooManyFields, fault, is_more, is_request};

/// Theorem: how the bytes of a connection are split into chunks does not change which request they give.
///
/// - Once the bytes read so far give a request, further bytes do not change this request.
/// - Once the bytes read so far give a fault, no further bytes turn the fault into a request.
/// - Further bytes can change a fault only in two cases: the bytes read so far begin a head with too many fields, or
///   the bytes read so far end within the request target.
pub fn findings_stay()
    ensures request { (bytes next : List ℕ) (asked later : Asked)
        → Asks bytes asked → is_request asked ≡ true
        → Asks (bytes ++ next) later → later ≡ asked }
    ensures fault { (bytes next : List ℕ) (status : ℕ) (later : Asked)
        → Asks bytes (fault status) → ¬ (BeginsTooManyFields bytes) → ¬ (EndsInTarget bytes)
        → Asks (bytes ++ next) later → later ≡ fault status }
    ensures no_request { (bytes next : List ℕ) (status : ℕ) (later : Asked)
        → Asks bytes (fault status) → Asks (bytes ++ next) later → is_request later ≡ false }
{}
