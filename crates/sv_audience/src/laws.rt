// Laws of watchers, each on a function that does nothing.
ghost use Rattle.sv_audience.specs.Listened.{PagesAddUp};
ghost use Rattle.sv_audience.specs.Mirrored.{MirrorsShowPages};
ghost use Rattle.sv_audience.specs.Standing.{WatchersStandOnce};

/// Who is told of one page after another, from the empty one on, hears all changes of all of them.
pub fn pages_add_up()
    ensures { PagesAddUp }
{}

/// A mirror that heard all that was told of pages, one after another from the empty one on, shows the last of them.
pub fn mirrors_show_pages()
    ensures { MirrorsShowPages }
{}

/// Of watchers that were told of some changes each stands once. One that is left has heard a front of them, or all where memory was never
/// wanting, and those that are left keep their order; one that is gone has heard a front of them and refused the next, and those that are gone
/// stand by how many they heard, and then in their order.
pub fn watchers_stand_once()
    ensures { WatchersStandOnce }
{}
