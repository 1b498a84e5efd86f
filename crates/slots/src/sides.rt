// The side files of a signature.
ghost use Rattle.std.specs.Prelude.{◌≡◌, true, cond};
ghost use Rattle.slots.specs.Slots.{sides};
ghost use Rattle.slots.specs.Lent.{sides_of, sides_read};

// The Info.plist and the CodeResources, each where it is there.
#[derive(Clone, Copy)]
pub struct SideFiles<'a> {
    pub info: Option<&'a [u8]>,
    pub resources: Option<&'a [u8]>,
}

impl<'a> SideFiles<'a> {
    // As C lends them, each with a flag. A side file whose flag is off is not read.
    pub fn lent(
        info_there: bool,
        info: &'a [u8],
        resources_there: bool,
        resources: &'a [u8],
    ) -> SideFiles<'a>
        ensures { sides_of result ≡ sides_read info_there info.now resources_there resources.now }
    {
        SideFiles {
            info: info_there.then_some(info),
            resources: resources_there.then_some(resources),
        }
    }
}
