// Laws of what is shown, on functions that do nothing.
ghost use Rattle.sv_seen.specs.Seen.{FirstPageIsRight};

/// When the module files ran and the root was made with all below it, each instance that is shown is shown right: what is held of its markup is
/// what evaluations on its view give. The cells of that view are those that the instance's last snapshot saw, which mounting promises.
pub fn first_page_is_right()
    ensures right { FirstPageIsRight }
{}
