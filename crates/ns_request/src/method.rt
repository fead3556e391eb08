//! The methods that the table of the paths tells apart.

ghost use Rattle.std.specs.Prelude.{◌≡◌};
ghost use Rattle.ns_request.specs.Methods.{method_of, has_method};

/// What a method does. `POST` and `PUT` are the same.
#[derive(Clone, Copy, PartialEq, Eq)]
pub enum Method {
    Get,
    Write,
    Delete,
}

impl Method {
    /// The method of that name, if any path of the table has it.
    pub fn read(name: &[u8]) -> Option<Method>
        ensures { result ≡ method_of name.now }
    {
        if name == b"GET".as_slice() {
            return Some(Method::Get);
        }
        if name == b"POST".as_slice() || name == b"PUT".as_slice() {
            return Some(Method::Write);
        }
        if name == b"DELETE".as_slice() {
            return Some(Method::Delete);
        }
        None
    }
}

/// The methods of a path.
#[derive(Clone, Copy)]
pub struct Methods {
    pub get: bool,
    pub write: bool,
    pub delete: bool,
}

impl Methods {
    /// Whether the path has the method.
    pub fn has(self, method: Method) -> bool
        ensures { result ≡ has_method self method }
    {
        match method {
            Method::Get => self.get,
            Method::Write => self.write,
            Method::Delete => self.delete,
        }
    }
}
