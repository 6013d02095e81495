//! Laws of a contact plan that is carried out, about the definitions alone.

ghost use Rattle.ctl_windows.specs.WindowLaws.{IsQuiet, IsSettled};

/// Where nothing is to be done to a link now, nothing is to be done to it before the moment at which it is looked at again.
pub fn quiet()
    ensures { IsQuiet }
{}

/// Once it was done what is to be done to a link, nothing more is to be done to it at the same moment.
pub fn settled()
    ensures { IsSettled }
{}
