//! A value that a call drops. If tests drop a large value themselves, the prover goes through all of its parts
//! in each of them.

ghost use Rattle.std.specs.Prelude.{◌≡◌};

/// A value with parts that own memory.
pub struct Owned<T: Drop> {
    pub value: T,
}

impl<T: Drop> Drop for Owned<T> {
    fn drop(self) {
        let Owned { value: _ } = self;
    }
}

impl<T: Drop> Owned<T> {
    pub fn of(value: T) -> Owned<T>
        ensures held { result.value ≡ value }
    {
        Owned { value }
    }

    pub fn into_value(self) -> T
        ensures value { result ≡ self.value }
    {
        let Owned { value } = self;
        value
    }
}
