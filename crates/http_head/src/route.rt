// What a path names, and why a head is refused.
ghost use Rattle.std.specs.Prelude.{◌≡◌};
ghost use Rattle.http_head.specs.Routes.{method_of, is_put};

/// The most octets of a request's body. A Content-Length above it is answered 413.
pub const MOST_BODY_OCTETS: u64 = 16_777_216;

/// What a path names. Each route has one method.
#[derive(Clone, Copy, Debug, PartialEq, Eq, Drop)]
pub enum Route {
    /// GET /queue
    Queue,
    /// GET /approvals
    Approvals,
    /// GET /ended
    Ended,
    /// GET /folders/{key}
    Folder,
    /// GET /folders/{key}/{name}
    Item,
    /// PUT /directory
    Directory,
    /// PUT /rules
    Rules,
    /// POST /approvals/{name}/{verdict}/{by}
    Decide,
    /// POST /turn
    Turn,
    /// POST /stop
    Stop,
}

/// Why a head is refused, with the status that says so (RFC 9110 section 15.5).
#[derive(Clone, Copy, Debug, PartialEq, Eq)]
pub enum HeadFault {
    /// 400: the head is malformed or passes a limit, or Content-Length isn't one number of 1 to 9 digits.
    BadRequest,
    /// 404: no route matches the target.
    NotFound,
    /// 405: the route has another method.
    WrongMethod,
    /// 411: a PUT has no Content-Length, or a request has Transfer-Encoding.
    NoLength,
    /// 413: the body has more than 16,777,216 octets.
    TooLarge,
}

/// A head that no check refuses: its route, and how many octets of body come behind it.
///
/// A GET or a POST may have a body too, which says nothing.
#[derive(Clone, Copy, Debug, PartialEq, Eq)]
pub struct RoutedHead {
    pub route: Route,
    pub body_length: u64,
}

impl Route {
    /// The method that the route has, in capitals (RFC 9110 section 9.1: methods are told apart by case).
    pub fn method(self) -> &'static [u8]
        ensures { result.now ≡ method_of self }
    {
        match self {
            Route::Queue | Route::Approvals | Route::Ended | Route::Folder | Route::Item => b"GET",
            Route::Directory | Route::Rules => b"PUT",
            Route::Decide | Route::Turn | Route::Stop => b"POST",
        }
    }

    /// Whether the route's method is PUT, whose body counts.
    pub fn is_put(self) -> bool
        ensures { result ≡ is_put self }
    {
        matches!(self, Route::Directory | Route::Rules)
    }
}
