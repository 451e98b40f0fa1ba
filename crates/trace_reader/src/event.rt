// An event as it stands in a trail file.

ghost use Rattle.std.specs.Prelude.{◌≡◌, ◌%◌, length};

// An activity and its objects, four bytes each.
#[derive(Drop)]
pub struct Event<'w> {
    pub activity: u32,
    pub objects: &'w [u8],
    ghost whole: { length objects.now % 4 ≡ 0 },
}
