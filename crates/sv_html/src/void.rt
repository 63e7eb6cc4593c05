// Void elements.
ghost use Rattle.std.specs.Prelude.{◌≡◌};
ghost use Rattle.sv_html.specs.Html.{is_void_to_command, is_void_to_input, is_void_to_param, is_void_to_wbr, is_void};

// Whether an element has no children and no end tag, by the HTML standard and its obsolete forms.
pub(crate) fn is_void(name: &str) -> bool
    ensures { result ≡ is_void name.now }
{
    is_void_to_command(name)
        || is_void_to_input(name)
        || is_void_to_param(name)
        || is_void_to_wbr(name)
}

fn is_void_to_command(name: &str) -> bool
    ensures { result ≡ is_void_to_command name.now }
{
    name == "area" || name == "base" || name == "br" || name == "col" || name == "command"
}

fn is_void_to_input(name: &str) -> bool
    ensures { result ≡ is_void_to_input name.now }
{
    name == "embed" || name == "hr" || name == "img" || name == "input"
}

fn is_void_to_param(name: &str) -> bool
    ensures { result ≡ is_void_to_param name.now }
{
    name == "keygen" || name == "link" || name == "meta" || name == "param"
}

fn is_void_to_wbr(name: &str) -> bool
    ensures { result ≡ is_void_to_wbr name.now }
{
    name == "source" || name == "track" || name == "wbr"
}
