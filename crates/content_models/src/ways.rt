// Where reading a model can go on, in words of a bit for each of its names.
ghost use Rattle.std.specs.Prelude.{◌≡◌};
ghost use Rattle.content_models.specs.Ways.{ahead, front_either, front_optional, front_then, leads, only};

/// Where reading can go on: at the places of a set, and at the end of the model.
#[derive(Clone, Copy, Drop)]
pub(crate) struct Way {
    pub set: u64,
    pub end: bool,
}

/// The places at which a model can begin, and whether it matches no names.
#[derive(Clone, Copy, Drop)]
pub(crate) struct Front {
    pub set: u64,
    pub nullable: bool,
}

/// A place of a model of a schema: its bit, and where reading can go on behind it.
#[derive(Clone, Copy, Drop)]
pub(crate) struct Spot {
    pub model: usize,
    pub bit: u64,
    pub next: Way,
}

impl Way {
    /// Whether a chain can be read that way that can be read from the places of a set, and has no name or some.
    pub(crate) fn leads(self, set: u64, ended: bool) -> bool
        ensures { result ≡ leads self set ended }
    {
        self.set & set != 0 || self.end && ended
    }
}

impl Front {
    pub(crate) fn then(self, next: Front) -> Front
        ensures { result ≡ front_then self next }
    {
        Front {
            set: self.set | only(self.nullable, next.set),
            nullable: self.nullable && next.nullable,
        }
    }

    pub(crate) fn either(self, other: Front) -> Front
        ensures { result ≡ front_either self other }
    {
        Front {
            set: self.set | other.set,
            nullable: self.nullable || other.nullable,
        }
    }

    pub(crate) fn optional(self) -> Front
        ensures { result ≡ front_optional self }
    {
        Front {
            set: self.set,
            nullable: true,
        }
    }

    /// Where reading can go on before what begins so, behind which it can go on that way.
    pub(crate) fn ahead(self, way: Way) -> Way
        ensures { result ≡ ahead self way }
    {
        Way {
            set: self.set | only(self.nullable, way.set),
            end: self.nullable && way.end,
        }
    }
}

fn only(wanted: bool, set: u64) -> u64
    ensures { result ≡ only wanted set }
{
    if wanted { set } else { 0 }
}
