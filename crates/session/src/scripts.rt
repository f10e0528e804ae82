// Scripts, whole.
ghost use Rattle.session.specs.Scripts.{ScriptLaw};

// A session that takes a script's bytes one by one, in whatever parts they came, and is then closed answers
// what the script's lines answer in turn, however long they are.
pub fn scripts_stand()
    ensures { ScriptLaw }
{}
