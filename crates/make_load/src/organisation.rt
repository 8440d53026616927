// The organisation of the load.
ghost use Rattle.std.specs.Prelude.{◌≡◌};
ghost use Rattle.make_load.specs.Load.{directory_text, rules_text};

/// The directory's text. It takes no memory.
pub fn directory() -> &'static [u8]
    ensures { result.now ≡ directory_text }
{
    b"key,kind,members,owners,moderated,moderators,bypass,tell\r\n\
example.com,domain,,,no,,,always\r\n\
ann@example.com,mailbox,,,no,,,always\r\n\
bob@example.com,mailbox,,,no,,,always\r\n\
cyn@example.com,mailbox,,,no,,,always\r\n\
mia@example.com,mailbox,,,no,,,always\r\n\
jo@example.com,mailbox,,,no,,,always\r\n\
zed@example.net,contact,,,no,,,always\r\n\
staff@example.com,group,ann@example.com bob@example.com cyn@example.com,,no,,,always\r\n\
board@example.com,group,bob@example.com cyn@example.com,,yes,mia@example.com,,always\r\n"
}

/// The rules' text. It takes no memory.
pub fn rules() -> &'static [u8]
    ensures { result.now ≡ rules_text }
{
    b"[[rule]]\n\
name = \"tag\"\n\
when = [{test = \"recipient-scope\", values = [\"inside\"]}]\n\
do = [{act = \"prepend-subject\", text = \"[in] \"}]\n\
[[journal]]\n\
name = \"ext\"\n\
scope = \"external\"\n\
mailbox = \"jo@example.com\"\n"
}
