ghost use Rattle.std.specs.Prelude.{◌≡◌, ◌-◌, length};

use crate::in_force::InForce;

impl InForce<'_> {
    // How many variables lead no equation.
    pub(crate) fn free(&self) -> usize
        ensures { result ≡ self.now.variables - length self.now.rows.now }
    {
        self.variables - self.rows.len()
    }
}
